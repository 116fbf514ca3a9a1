//! The tokens with a fixed spelling.

use crate::kinds;

/// A fixed spelling and the kind of token that it is.
#[derive(Clone, Copy, Debug)]
pub struct Spelling {
    /// The bytes; of a reserved word in lower case.
    pub text: &'static [u8],
    /// The kind.
    pub kind: u16,
}

/// The reserved words.
pub static RESERVED_WORDS: [Spelling; 38] = [
    Spelling {
        text: b"accept",
        kind: kinds::ACCEPT,
    },
    Spelling {
        text: b"actualizedby",
        kind: kinds::ACTUALIZEDBY,
    },
    Spelling {
        text: b"any",
        kind: kinds::ANY,
    },
    Spelling {
        text: b"behavior",
        kind: kinds::BEHAVIOR,
    },
    Spelling {
        text: b"behaviour",
        kind: kinds::BEHAVIOUR,
    },
    Spelling {
        text: b"choice",
        kind: kinds::CHOICE,
    },
    Spelling {
        text: b"endlib",
        kind: kinds::ENDLIB,
    },
    Spelling {
        text: b"endproc",
        kind: kinds::ENDPROC,
    },
    Spelling {
        text: b"endspec",
        kind: kinds::ENDSPEC,
    },
    Spelling {
        text: b"endtype",
        kind: kinds::ENDTYPE,
    },
    Spelling {
        text: b"eqns",
        kind: kinds::EQNS,
    },
    Spelling {
        text: b"exit",
        kind: kinds::EXIT,
    },
    Spelling {
        text: b"for",
        kind: kinds::FOR,
    },
    Spelling {
        text: b"forall",
        kind: kinds::FORALL,
    },
    Spelling {
        text: b"formaleqns",
        kind: kinds::FORMALEQNS,
    },
    Spelling {
        text: b"formalopns",
        kind: kinds::FORMALOPNS,
    },
    Spelling {
        text: b"formalsorts",
        kind: kinds::FORMALSORTS,
    },
    Spelling {
        text: b"hide",
        kind: kinds::HIDE,
    },
    Spelling {
        text: b"i",
        kind: kinds::I,
    },
    Spelling {
        text: b"in",
        kind: kinds::IN,
    },
    Spelling {
        text: b"is",
        kind: kinds::IS,
    },
    Spelling {
        text: b"let",
        kind: kinds::LET,
    },
    Spelling {
        text: b"library",
        kind: kinds::LIBRARY,
    },
    Spelling {
        text: b"noexit",
        kind: kinds::NOEXIT,
    },
    Spelling {
        text: b"of",
        kind: kinds::OF,
    },
    Spelling {
        text: b"ofsort",
        kind: kinds::OFSORT,
    },
    Spelling {
        text: b"opnnames",
        kind: kinds::OPNNAMES,
    },
    Spelling {
        text: b"opns",
        kind: kinds::OPNS,
    },
    Spelling {
        text: b"par",
        kind: kinds::PAR,
    },
    Spelling {
        text: b"process",
        kind: kinds::PROCESS,
    },
    Spelling {
        text: b"renamedby",
        kind: kinds::RENAMEDBY,
    },
    Spelling {
        text: b"sortnames",
        kind: kinds::SORTNAMES,
    },
    Spelling {
        text: b"sorts",
        kind: kinds::SORTS,
    },
    Spelling {
        text: b"specification",
        kind: kinds::SPECIFICATION,
    },
    Spelling {
        text: b"stop",
        kind: kinds::STOP,
    },
    Spelling {
        text: b"type",
        kind: kinds::TYPE,
    },
    Spelling {
        text: b"using",
        kind: kinds::USING,
    },
    Spelling {
        text: b"where",
        kind: kinds::WHERE,
    },
];

/// The signs that are more than one token's bytes, a longer one before each that it begins with.
pub static OPERATORS: [Spelling; 6] = [
    Spelling {
        text: b"|||",
        kind: kinds::INTERLEAVING,
    },
    Spelling {
        text: b"||",
        kind: kinds::FULL_SYNCHRONISATION,
    },
    Spelling {
        text: b"|[",
        kind: kinds::GATES_OPEN,
    },
    Spelling {
        text: b"[]",
        kind: kinds::CHOICE_SIGN,
    },
    Spelling {
        text: b"[>",
        kind: kinds::DISABLING,
    },
    Spelling {
        text: b":=",
        kind: kinds::DEFINITION,
    },
];

/// The runs of signs that are reserved.
pub static RESERVED_RUNS: [Spelling; 4] = [
    Spelling {
        text: b"=",
        kind: kinds::EQUALS,
    },
    Spelling {
        text: b"=>",
        kind: kinds::IMPLIES,
    },
    Spelling {
        text: b"->",
        kind: kinds::ARROW,
    },
    Spelling {
        text: b">>",
        kind: kinds::ENABLING,
    },
];

/// The signs of one byte.
pub static SINGLE_SIGNS: [Spelling; 10] = [
    Spelling {
        text: b"(",
        kind: kinds::LEFT_PARENTHESIS,
    },
    Spelling {
        text: b")",
        kind: kinds::RIGHT_PARENTHESIS,
    },
    Spelling {
        text: b"[",
        kind: kinds::LEFT_BRACKET,
    },
    Spelling {
        text: b"]",
        kind: kinds::RIGHT_BRACKET,
    },
    Spelling {
        text: b",",
        kind: kinds::COMMA,
    },
    Spelling {
        text: b";",
        kind: kinds::SEMICOLON,
    },
    Spelling {
        text: b":",
        kind: kinds::COLON,
    },
    Spelling {
        text: b"!",
        kind: kinds::EXCLAMATION,
    },
    Spelling {
        text: b"?",
        kind: kinds::QUESTION,
    },
    Spelling {
        text: b"_",
        kind: kinds::UNDERSCORE,
    },
];
