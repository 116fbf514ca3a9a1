//! The text of the library `NaturalNumber`.

/// One sort, eleven operations and seventeen equations above those of `Boolean`.
pub const NATURAL_NUMBER: &[u8] = b"library Boolean endlib
type NaturalNumber is Boolean
sorts Nat
opns
  0 : -> Nat
  Succ : Nat -> Nat
  _+_, _*_, _**_ : Nat, Nat -> Nat
  _eq_, _ne_, _lt_, _le_, _ge_, _gt_ : Nat, Nat -> Bool
eqns forall x, y : Nat
ofsort Nat
  x + 0 = x;
  x + Succ(y) = Succ(x + y);
  x * 0 = 0;
  x * Succ(y) = x + (x * y);
  x ** 0 = Succ(0);
  x ** Succ(y) = x * (x ** y);
ofsort Bool
  0 eq 0 = true;
  0 eq Succ(y) = false;
  Succ(x) eq 0 = false;
  Succ(x) eq Succ(y) = x eq y;
  x ne y = not(x eq y);
  x lt 0 = false;
  0 lt Succ(y) = true;
  Succ(x) lt Succ(y) = x lt y;
  x le y = (x lt y) or (x eq y);
  x ge y = y le x;
  x gt y = y lt x;
endtype
";
