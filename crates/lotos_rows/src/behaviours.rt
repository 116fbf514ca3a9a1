//! The rows of behaviours.

use crate::{equations, names, renamings, terms};
use ll_engine::{Symbol, WrittenRow};
use lotos_lexer::kinds;

/// The number of the first part here.
pub const FIRST_PART: u16 = renamings::FIRST_PART + renamings::PARTS;
/// How many parts there are here.
pub const PARTS: u16 = 17;
/// The number of the first row here.
pub const FIRST_ROW: u32 = renamings::FIRST_ROW + renamings::ROWS;
/// How many rows there are here.
pub const ROWS: u32 = 44;

/// A behaviour.
pub const BEHAVIOUR: u16 = FIRST_PART;
/// A sign and a behaviour, or nothing.
pub const BEHAVIOUR_TAIL: u16 = FIRST_PART + 1;
/// What follows a name at the start of a behaviour.
pub const AFTER_NAME: u16 = FIRST_PART + 2;
/// An offer of an action.
pub const OFFER: u16 = FIRST_PART + 3;
/// What follows an offer.
pub const AFTER_OFFER: u16 = FIRST_PART + 4;
/// The values of `exit`, or nothing.
pub const EXIT_VALUES: u16 = FIRST_PART + 5;
/// Values of `exit` with commas between.
pub const EXIT_LIST: u16 = FIRST_PART + 6;
/// Further values of `exit`.
pub const MORE_EXIT_VALUES: u16 = FIRST_PART + 7;
/// Variables of `let` with their terms.
pub const LET_LIST: u16 = FIRST_PART + 8;
/// Further variables of `let`.
pub const MORE_LETS: u16 = FIRST_PART + 9;
/// What follows the first names of `choice`.
pub const AFTER_CHOICE: u16 = FIRST_PART + 10;
/// What is chosen: a behaviour behind its sign.
pub const CHOSEN: u16 = FIRST_PART + 11;
/// Gates and the gates among which they are chosen.
pub const GATE_CHOICES: u16 = FIRST_PART + 12;
/// Further gates that are chosen.
pub const MORE_GATE_CHOICES: u16 = FIRST_PART + 13;
/// A sign between two behaviours.
pub const SIGN: u16 = FIRST_PART + 14;
/// A sign of parallel composition.
pub const PARALLEL: u16 = FIRST_PART + 15;
/// The variables behind `accept`, or nothing.
pub const ACCEPT: u16 = FIRST_PART + 16;

/// The rows here, by their names.
#[derive(Clone, Copy, Debug, PartialEq, Eq)]
pub enum BehavioursRow {
    /// `behaviour = "hide" names "in" behaviour`
    Hide,
    /// `behaviour = "let" let_list "in" behaviour`
    Let,
    /// `behaviour = "choice" names after_choice`
    Choice,
    /// `behaviour = "par" gate_choices parallel behaviour`
    Par,
    /// `behaviour = "i" ";" behaviour`
    Internal,
    /// `behaviour = "[" premiss "]" "->" behaviour`
    Guarded,
    /// `behaviour = name after_name`
    NameFirst,
    /// `behaviour = "stop" behaviour_tail`
    Stop,
    /// `behaviour = "exit" exit_values behaviour_tail`
    Exit,
    /// `behaviour = "(" behaviour ")" behaviour_tail`
    BracketedBehaviour,
    /// `behaviour_tail =`
    NoBehaviourTail,
    /// `behaviour_tail = sign behaviour`
    BehaviourTail,
    /// `after_name = ";" behaviour`
    ActionWithoutOffers,
    /// `after_name = offer after_offer`
    ActionWithOffers,
    /// `after_name = optional_gates arguments behaviour_tail`
    Call,
    /// `offer = "!" term`
    Give,
    /// `offer = "?" names ":" name`
    Ask,
    /// `after_offer = offer after_offer`
    OneMoreOffer,
    /// `after_offer = "[" premiss "]" ";" behaviour`
    SelectionAfterOffers,
    /// `after_offer = ";" behaviour`
    PrefixAfterOffers,
    /// `exit_values =`
    NoExitValues,
    /// `exit_values = "(" exit_list ")"`
    ExitValues,
    /// `exit_list = "any" name more_exit_values`
    AnyExitValue,
    /// `exit_list = term more_exit_values`
    GivenExitValue,
    /// `more_exit_values =`
    NoMoreExitValues,
    /// `more_exit_values = "," exit_list`
    MoreExitValues,
    /// `let_list = name ":" name "=" term more_lets`
    LetList,
    /// `more_lets =`
    NoMoreLets,
    /// `more_lets = "," let_list`
    MoreLets,
    /// `after_choice = ":" name more_variables chosen`
    ChoiceOfValues,
    /// `after_choice = "in" gates more_gate_choices chosen`
    ChoiceOfGates,
    /// `chosen = "[]" behaviour`
    Chosen,
    /// `gate_choices = names "in" gates more_gate_choices`
    GateChoices,
    /// `more_gate_choices =`
    NoMoreGateChoices,
    /// `more_gate_choices = "," gate_choices`
    MoreGateChoices,
    /// `sign = "[]"`
    ChoiceSign,
    /// `sign = parallel`
    ParallelSign,
    /// `sign = "[>"`
    DisablingSign,
    /// `sign = ">>" accept`
    EnablingSign,
    /// `parallel = "|||"`
    Interleaving,
    /// `parallel = "||"`
    FullSynchronisation,
    /// `parallel = "|[" optional_names "]|"`
    GateSynchronisation,
    /// `accept =`
    NoAccept,
    /// `accept = "accept" variables "in"`
    Accept,
}

/// `behaviour = "hide" names "in" behaviour`
pub const HIDE_ROW: WrittenRow = WrittenRow {
    left: BEHAVIOUR,
    right: &[
        Symbol::Token(kinds::HIDE),
        Symbol::Part(names::NAMES),
        Symbol::Token(kinds::IN),
        Symbol::Part(BEHAVIOUR),
    ],
    predicted_by: 1 << kinds::HIDE,
};

/// `behaviour = "let" let_list "in" behaviour`
pub const LET_ROW: WrittenRow = WrittenRow {
    left: BEHAVIOUR,
    right: &[
        Symbol::Token(kinds::LET),
        Symbol::Part(LET_LIST),
        Symbol::Token(kinds::IN),
        Symbol::Part(BEHAVIOUR),
    ],
    predicted_by: 1 << kinds::LET,
};

/// `behaviour = "choice" names after_choice`
pub const CHOICE_ROW: WrittenRow = WrittenRow {
    left: BEHAVIOUR,
    right: &[
        Symbol::Token(kinds::CHOICE),
        Symbol::Part(names::NAMES),
        Symbol::Part(AFTER_CHOICE),
    ],
    predicted_by: 1 << kinds::CHOICE,
};

/// `behaviour = "par" gate_choices parallel behaviour`
pub const PAR_ROW: WrittenRow = WrittenRow {
    left: BEHAVIOUR,
    right: &[
        Symbol::Token(kinds::PAR),
        Symbol::Part(GATE_CHOICES),
        Symbol::Part(PARALLEL),
        Symbol::Part(BEHAVIOUR),
    ],
    predicted_by: 1 << kinds::PAR,
};

/// `behaviour = "i" ";" behaviour`
pub const INTERNAL_ROW: WrittenRow = WrittenRow {
    left: BEHAVIOUR,
    right: &[
        Symbol::Token(kinds::I),
        Symbol::Token(kinds::SEMICOLON),
        Symbol::Part(BEHAVIOUR),
    ],
    predicted_by: 1 << kinds::I,
};

/// `behaviour = "[" premiss "]" "->" behaviour`
pub const GUARDED_ROW: WrittenRow = WrittenRow {
    left: BEHAVIOUR,
    right: &[
        Symbol::Token(kinds::LEFT_BRACKET),
        Symbol::Part(equations::PREMISS),
        Symbol::Token(kinds::RIGHT_BRACKET),
        Symbol::Token(kinds::ARROW),
        Symbol::Part(BEHAVIOUR),
    ],
    predicted_by: 1 << kinds::LEFT_BRACKET,
};

/// `behaviour = name after_name`
pub const NAME_FIRST_ROW: WrittenRow = WrittenRow {
    left: BEHAVIOUR,
    right: &[Symbol::Part(names::NAME), Symbol::Part(AFTER_NAME)],
    predicted_by: 1 << kinds::NAME,
};

/// `behaviour = "stop" behaviour_tail`
pub const STOP_ROW: WrittenRow = WrittenRow {
    left: BEHAVIOUR,
    right: &[Symbol::Token(kinds::STOP), Symbol::Part(BEHAVIOUR_TAIL)],
    predicted_by: 1 << kinds::STOP,
};

/// `behaviour = "exit" exit_values behaviour_tail`
pub const EXIT_ROW: WrittenRow = WrittenRow {
    left: BEHAVIOUR,
    right: &[
        Symbol::Token(kinds::EXIT),
        Symbol::Part(EXIT_VALUES),
        Symbol::Part(BEHAVIOUR_TAIL),
    ],
    predicted_by: 1 << kinds::EXIT,
};

/// `behaviour = "(" behaviour ")" behaviour_tail`
pub const BRACKETED_BEHAVIOUR_ROW: WrittenRow = WrittenRow {
    left: BEHAVIOUR,
    right: &[
        Symbol::Token(kinds::LEFT_PARENTHESIS),
        Symbol::Part(BEHAVIOUR),
        Symbol::Token(kinds::RIGHT_PARENTHESIS),
        Symbol::Part(BEHAVIOUR_TAIL),
    ],
    predicted_by: 1 << kinds::LEFT_PARENTHESIS,
};

/// `behaviour_tail =`
pub const NO_BEHAVIOUR_TAIL_ROW: WrittenRow = WrittenRow {
    left: BEHAVIOUR_TAIL,
    right: &[],
    predicted_by: 1 << kinds::ENDPROC
        | 1 << kinds::ENDSPEC
        | 1 << kinds::WHERE
        | 1 << kinds::RIGHT_PARENTHESIS,
};

/// `behaviour_tail = sign behaviour`
pub const BEHAVIOUR_TAIL_ROW: WrittenRow = WrittenRow {
    left: BEHAVIOUR_TAIL,
    right: &[Symbol::Part(SIGN), Symbol::Part(BEHAVIOUR)],
    predicted_by: 1 << kinds::INTERLEAVING
        | 1 << kinds::FULL_SYNCHRONISATION
        | 1 << kinds::GATES_OPEN
        | 1 << kinds::CHOICE_SIGN
        | 1 << kinds::DISABLING
        | 1 << kinds::ENABLING,
};

/// `after_name = ";" behaviour`
pub const ACTION_WITHOUT_OFFERS_ROW: WrittenRow = WrittenRow {
    left: AFTER_NAME,
    right: &[Symbol::Token(kinds::SEMICOLON), Symbol::Part(BEHAVIOUR)],
    predicted_by: 1 << kinds::SEMICOLON,
};

/// `after_name = offer after_offer`
pub const ACTION_WITH_OFFERS_ROW: WrittenRow = WrittenRow {
    left: AFTER_NAME,
    right: &[Symbol::Part(OFFER), Symbol::Part(AFTER_OFFER)],
    predicted_by: 1 << kinds::EXCLAMATION | 1 << kinds::QUESTION,
};

/// `after_name = optional_gates arguments behaviour_tail`
pub const CALL_ROW: WrittenRow = WrittenRow {
    left: AFTER_NAME,
    right: &[
        Symbol::Part(names::OPTIONAL_GATES),
        Symbol::Part(terms::ARGUMENTS),
        Symbol::Part(BEHAVIOUR_TAIL),
    ],
    predicted_by: 1 << kinds::ENDPROC
        | 1 << kinds::ENDSPEC
        | 1 << kinds::WHERE
        | 1 << kinds::INTERLEAVING
        | 1 << kinds::FULL_SYNCHRONISATION
        | 1 << kinds::GATES_OPEN
        | 1 << kinds::CHOICE_SIGN
        | 1 << kinds::DISABLING
        | 1 << kinds::ENABLING
        | 1 << kinds::LEFT_PARENTHESIS
        | 1 << kinds::RIGHT_PARENTHESIS
        | 1 << kinds::LEFT_BRACKET,
};

/// `offer = "!" term`
pub const GIVE_ROW: WrittenRow = WrittenRow {
    left: OFFER,
    right: &[Symbol::Token(kinds::EXCLAMATION), Symbol::Part(terms::TERM)],
    predicted_by: 1 << kinds::EXCLAMATION,
};

/// `offer = "?" names ":" name`
pub const ASK_ROW: WrittenRow = WrittenRow {
    left: OFFER,
    right: &[
        Symbol::Token(kinds::QUESTION),
        Symbol::Part(names::NAMES),
        Symbol::Token(kinds::COLON),
        Symbol::Part(names::NAME),
    ],
    predicted_by: 1 << kinds::QUESTION,
};

/// `after_offer = offer after_offer`
pub const ONE_MORE_OFFER_ROW: WrittenRow = WrittenRow {
    left: AFTER_OFFER,
    right: &[Symbol::Part(OFFER), Symbol::Part(AFTER_OFFER)],
    predicted_by: 1 << kinds::EXCLAMATION | 1 << kinds::QUESTION,
};

/// `after_offer = "[" premiss "]" ";" behaviour`
pub const SELECTION_AFTER_OFFERS_ROW: WrittenRow = WrittenRow {
    left: AFTER_OFFER,
    right: &[
        Symbol::Token(kinds::LEFT_BRACKET),
        Symbol::Part(equations::PREMISS),
        Symbol::Token(kinds::RIGHT_BRACKET),
        Symbol::Token(kinds::SEMICOLON),
        Symbol::Part(BEHAVIOUR),
    ],
    predicted_by: 1 << kinds::LEFT_BRACKET,
};

/// `after_offer = ";" behaviour`
pub const PREFIX_AFTER_OFFERS_ROW: WrittenRow = WrittenRow {
    left: AFTER_OFFER,
    right: &[Symbol::Token(kinds::SEMICOLON), Symbol::Part(BEHAVIOUR)],
    predicted_by: 1 << kinds::SEMICOLON,
};

/// `exit_values =`
pub const NO_EXIT_VALUES_ROW: WrittenRow = WrittenRow {
    left: EXIT_VALUES,
    right: &[],
    predicted_by: 1 << kinds::ENDPROC
        | 1 << kinds::ENDSPEC
        | 1 << kinds::WHERE
        | 1 << kinds::INTERLEAVING
        | 1 << kinds::FULL_SYNCHRONISATION
        | 1 << kinds::GATES_OPEN
        | 1 << kinds::CHOICE_SIGN
        | 1 << kinds::DISABLING
        | 1 << kinds::ENABLING
        | 1 << kinds::RIGHT_PARENTHESIS,
};

/// `exit_values = "(" exit_list ")"`
pub const EXIT_VALUES_ROW: WrittenRow = WrittenRow {
    left: EXIT_VALUES,
    right: &[
        Symbol::Token(kinds::LEFT_PARENTHESIS),
        Symbol::Part(EXIT_LIST),
        Symbol::Token(kinds::RIGHT_PARENTHESIS),
    ],
    predicted_by: 1 << kinds::LEFT_PARENTHESIS,
};

/// `exit_list = "any" name more_exit_values`
pub const ANY_EXIT_VALUE_ROW: WrittenRow = WrittenRow {
    left: EXIT_LIST,
    right: &[
        Symbol::Token(kinds::ANY),
        Symbol::Part(names::NAME),
        Symbol::Part(MORE_EXIT_VALUES),
    ],
    predicted_by: 1 << kinds::ANY,
};

/// `exit_list = term more_exit_values`
pub const GIVEN_EXIT_VALUE_ROW: WrittenRow = WrittenRow {
    left: EXIT_LIST,
    right: &[Symbol::Part(terms::TERM), Symbol::Part(MORE_EXIT_VALUES)],
    predicted_by: 1 << kinds::NAME
        | 1 << kinds::DIGIT_NAME
        | 1 << kinds::SIGN_NAME
        | 1 << kinds::LEFT_PARENTHESIS,
};

/// `more_exit_values =`
pub const NO_MORE_EXIT_VALUES_ROW: WrittenRow = WrittenRow {
    left: MORE_EXIT_VALUES,
    right: &[],
    predicted_by: 1 << kinds::RIGHT_PARENTHESIS,
};

/// `more_exit_values = "," exit_list`
pub const MORE_EXIT_VALUES_ROW: WrittenRow = WrittenRow {
    left: MORE_EXIT_VALUES,
    right: &[Symbol::Token(kinds::COMMA), Symbol::Part(EXIT_LIST)],
    predicted_by: 1 << kinds::COMMA,
};

/// `let_list = name ":" name "=" term more_lets`
pub const LET_LIST_ROW: WrittenRow = WrittenRow {
    left: LET_LIST,
    right: &[
        Symbol::Part(names::NAME),
        Symbol::Token(kinds::COLON),
        Symbol::Part(names::NAME),
        Symbol::Token(kinds::EQUALS),
        Symbol::Part(terms::TERM),
        Symbol::Part(MORE_LETS),
    ],
    predicted_by: 1 << kinds::NAME,
};

/// `more_lets =`
pub const NO_MORE_LETS_ROW: WrittenRow = WrittenRow {
    left: MORE_LETS,
    right: &[],
    predicted_by: 1 << kinds::IN,
};

/// `more_lets = "," let_list`
pub const MORE_LETS_ROW: WrittenRow = WrittenRow {
    left: MORE_LETS,
    right: &[Symbol::Token(kinds::COMMA), Symbol::Part(LET_LIST)],
    predicted_by: 1 << kinds::COMMA,
};

/// `after_choice = ":" name more_variables chosen`
pub const CHOICE_OF_VALUES_ROW: WrittenRow = WrittenRow {
    left: AFTER_CHOICE,
    right: &[
        Symbol::Token(kinds::COLON),
        Symbol::Part(names::NAME),
        Symbol::Part(names::MORE_VARIABLES),
        Symbol::Part(CHOSEN),
    ],
    predicted_by: 1 << kinds::COLON,
};

/// `after_choice = "in" gates more_gate_choices chosen`
pub const CHOICE_OF_GATES_ROW: WrittenRow = WrittenRow {
    left: AFTER_CHOICE,
    right: &[
        Symbol::Token(kinds::IN),
        Symbol::Part(names::GATES),
        Symbol::Part(MORE_GATE_CHOICES),
        Symbol::Part(CHOSEN),
    ],
    predicted_by: 1 << kinds::IN,
};

/// `chosen = "[]" behaviour`
pub const CHOSEN_ROW: WrittenRow = WrittenRow {
    left: CHOSEN,
    right: &[Symbol::Token(kinds::CHOICE_SIGN), Symbol::Part(BEHAVIOUR)],
    predicted_by: 1 << kinds::CHOICE_SIGN,
};

/// `gate_choices = names "in" gates more_gate_choices`
pub const GATE_CHOICES_ROW: WrittenRow = WrittenRow {
    left: GATE_CHOICES,
    right: &[
        Symbol::Part(names::NAMES),
        Symbol::Token(kinds::IN),
        Symbol::Part(names::GATES),
        Symbol::Part(MORE_GATE_CHOICES),
    ],
    predicted_by: 1 << kinds::NAME,
};

/// `more_gate_choices =`
pub const NO_MORE_GATE_CHOICES_ROW: WrittenRow = WrittenRow {
    left: MORE_GATE_CHOICES,
    right: &[],
    predicted_by: 1 << kinds::INTERLEAVING
        | 1 << kinds::FULL_SYNCHRONISATION
        | 1 << kinds::GATES_OPEN
        | 1 << kinds::CHOICE_SIGN,
};

/// `more_gate_choices = "," gate_choices`
pub const MORE_GATE_CHOICES_ROW: WrittenRow = WrittenRow {
    left: MORE_GATE_CHOICES,
    right: &[Symbol::Token(kinds::COMMA), Symbol::Part(GATE_CHOICES)],
    predicted_by: 1 << kinds::COMMA,
};

/// `sign = "[]"`
pub const CHOICE_SIGN_ROW: WrittenRow = WrittenRow {
    left: SIGN,
    right: &[Symbol::Token(kinds::CHOICE_SIGN)],
    predicted_by: 1 << kinds::CHOICE_SIGN,
};

/// `sign = parallel`
pub const PARALLEL_SIGN_ROW: WrittenRow = WrittenRow {
    left: SIGN,
    right: &[Symbol::Part(PARALLEL)],
    predicted_by: 1 << kinds::INTERLEAVING
        | 1 << kinds::FULL_SYNCHRONISATION
        | 1 << kinds::GATES_OPEN,
};

/// `sign = "[>"`
pub const DISABLING_SIGN_ROW: WrittenRow = WrittenRow {
    left: SIGN,
    right: &[Symbol::Token(kinds::DISABLING)],
    predicted_by: 1 << kinds::DISABLING,
};

/// `sign = ">>" accept`
pub const ENABLING_SIGN_ROW: WrittenRow = WrittenRow {
    left: SIGN,
    right: &[Symbol::Token(kinds::ENABLING), Symbol::Part(ACCEPT)],
    predicted_by: 1 << kinds::ENABLING,
};

/// `parallel = "|||"`
pub const INTERLEAVING_ROW: WrittenRow = WrittenRow {
    left: PARALLEL,
    right: &[Symbol::Token(kinds::INTERLEAVING)],
    predicted_by: 1 << kinds::INTERLEAVING,
};

/// `parallel = "||"`
pub const FULL_SYNCHRONISATION_ROW: WrittenRow = WrittenRow {
    left: PARALLEL,
    right: &[Symbol::Token(kinds::FULL_SYNCHRONISATION)],
    predicted_by: 1 << kinds::FULL_SYNCHRONISATION,
};

/// `parallel = "|[" optional_names "]|"`
pub const GATE_SYNCHRONISATION_ROW: WrittenRow = WrittenRow {
    left: PARALLEL,
    right: &[
        Symbol::Token(kinds::GATES_OPEN),
        Symbol::Part(names::OPTIONAL_NAMES),
        Symbol::Token(kinds::GATES_CLOSE),
    ],
    predicted_by: 1 << kinds::GATES_OPEN,
};

/// `accept =`
pub const NO_ACCEPT_ROW: WrittenRow = WrittenRow {
    left: ACCEPT,
    right: &[],
    predicted_by: 1 << kinds::CHOICE
        | 1 << kinds::EXIT
        | 1 << kinds::HIDE
        | 1 << kinds::I
        | 1 << kinds::LET
        | 1 << kinds::PAR
        | 1 << kinds::STOP
        | 1 << kinds::NAME
        | 1 << kinds::LEFT_PARENTHESIS
        | 1 << kinds::LEFT_BRACKET,
};

/// `accept = "accept" variables "in"`
pub const ACCEPT_ROW: WrittenRow = WrittenRow {
    left: ACCEPT,
    right: &[
        Symbol::Token(kinds::ACCEPT),
        Symbol::Part(names::VARIABLES),
        Symbol::Token(kinds::IN),
    ],
    predicted_by: 1 << kinds::ACCEPT,
};
