//! The text of the library `Boolean`.

/// One sort, ten operations and eleven equations.
pub const BOOLEAN: &[u8] = b"type Boolean is
sorts Bool
opns
  false, true : -> Bool
  not : Bool -> Bool
  _and_, _or_, _xor_, _implies_, _iff_, _eq_, _ne_ : Bool, Bool -> Bool
eqns forall x, y : Bool ofsort Bool
  not(true) = false;
  not(false) = true;
  x and true = x;
  x and false = false;
  x or true = true;
  x or false = x;
  x xor y = (x and not(y)) or (y and not(x));
  x implies y = y or not(x);
  x iff y = (x implies y) and (y implies x);
  x eq y = x iff y;
  x ne y = x xor y;
endtype
";
