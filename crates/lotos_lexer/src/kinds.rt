//! The kinds of tokens, as the numbers that the grammar is written in.

/// The reserved word `accept`.
pub const ACCEPT: u16 = 0;
/// The reserved word `actualizedby`.
pub const ACTUALIZEDBY: u16 = 1;
/// The reserved word `any`.
pub const ANY: u16 = 2;
/// The reserved word `behavior`.
pub const BEHAVIOR: u16 = 3;
/// The reserved word `behaviour`.
pub const BEHAVIOUR: u16 = 4;
/// The reserved word `choice`.
pub const CHOICE: u16 = 5;
/// The reserved word `endlib`.
pub const ENDLIB: u16 = 6;
/// The reserved word `endproc`.
pub const ENDPROC: u16 = 7;
/// The reserved word `endspec`.
pub const ENDSPEC: u16 = 8;
/// The reserved word `endtype`.
pub const ENDTYPE: u16 = 9;
/// The reserved word `eqns`.
pub const EQNS: u16 = 10;
/// The reserved word `exit`.
pub const EXIT: u16 = 11;
/// The reserved word `for`.
pub const FOR: u16 = 12;
/// The reserved word `forall`.
pub const FORALL: u16 = 13;
/// The reserved word `formaleqns`.
pub const FORMALEQNS: u16 = 14;
/// The reserved word `formalopns`.
pub const FORMALOPNS: u16 = 15;
/// The reserved word `formalsorts`.
pub const FORMALSORTS: u16 = 16;
/// The reserved word `hide`.
pub const HIDE: u16 = 17;
/// The reserved word `i`.
pub const I: u16 = 18;
/// The reserved word `in`.
pub const IN: u16 = 19;
/// The reserved word `is`.
pub const IS: u16 = 20;
/// The reserved word `let`.
pub const LET: u16 = 21;
/// The reserved word `library`.
pub const LIBRARY: u16 = 22;
/// The reserved word `noexit`.
pub const NOEXIT: u16 = 23;
/// The reserved word `of`.
pub const OF: u16 = 24;
/// The reserved word `ofsort`.
pub const OFSORT: u16 = 25;
/// The reserved word `opnnames`.
pub const OPNNAMES: u16 = 26;
/// The reserved word `opns`.
pub const OPNS: u16 = 27;
/// The reserved word `par`.
pub const PAR: u16 = 28;
/// The reserved word `process`.
pub const PROCESS: u16 = 29;
/// The reserved word `renamedby`.
pub const RENAMEDBY: u16 = 30;
/// The reserved word `sortnames`.
pub const SORTNAMES: u16 = 31;
/// The reserved word `sorts`.
pub const SORTS: u16 = 32;
/// The reserved word `specification`.
pub const SPECIFICATION: u16 = 33;
/// The reserved word `stop`.
pub const STOP: u16 = 34;
/// The reserved word `type`.
pub const TYPE: u16 = 35;
/// The reserved word `using`.
pub const USING: u16 = 36;
/// The reserved word `where`.
pub const WHERE: u16 = 37;
/// A word that is not reserved.
pub const NAME: u16 = 38;
/// A name that begins with a digit.
pub const DIGIT_NAME: u16 = 39;
/// A run of signs that is not reserved.
pub const SIGN_NAME: u16 = 40;
/// `|||`.
pub const INTERLEAVING: u16 = 41;
/// `||`.
pub const FULL_SYNCHRONISATION: u16 = 42;
/// `|[`.
pub const GATES_OPEN: u16 = 43;
/// `[]`.
pub const CHOICE_SIGN: u16 = 44;
/// `[>`.
pub const DISABLING: u16 = 45;
/// `:=`.
pub const DEFINITION: u16 = 46;
/// `]|`, where it closes a `|[`.
pub const GATES_CLOSE: u16 = 47;
/// `=`.
pub const EQUALS: u16 = 48;
/// `=>`.
pub const IMPLIES: u16 = 49;
/// `->`.
pub const ARROW: u16 = 50;
/// `>>`.
pub const ENABLING: u16 = 51;
/// `(`.
pub const LEFT_PARENTHESIS: u16 = 52;
/// `)`.
pub const RIGHT_PARENTHESIS: u16 = 53;
/// `[`.
pub const LEFT_BRACKET: u16 = 54;
/// `]`.
pub const RIGHT_BRACKET: u16 = 55;
/// `,`.
pub const COMMA: u16 = 56;
/// `;`.
pub const SEMICOLON: u16 = 57;
/// `:`.
pub const COLON: u16 = 58;
/// `!`.
pub const EXCLAMATION: u16 = 59;
/// `?`.
pub const QUESTION: u16 = 60;
/// `_`.
pub const UNDERSCORE: u16 = 61;

/// How many kinds there are: each kind is below this number.
pub const COUNT: u16 = 62;
