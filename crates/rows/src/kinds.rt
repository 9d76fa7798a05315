// What a row is: its kind, the form of its value, and how it compares.
ghost use Rattle.std.specs.Prelude.{◌≡◌, ◌/◌, ◌%◌, ◌≤◌, ◌<◌, MatchOption};
ghost use Rattle.rows.specs.Rows.{value_in, relation_in, compares};
ghost use Rattle.rows.specs.Kinds.{IsKind, value_by, relation_by};

use crate::fields::field;

// The kind of a row.
#[derive(Clone, Copy, PartialEq, Eq)]
pub enum Kind {
    Element, // without counters
    Counted, // an element with counters
    Repeated, // an element for each number of a counter
    Span,
    Mantissas,
    Condition,
    Assignment,
    Refusal,
    Derivation,
    Comparison,
    Loop,
    Exponents,
}

impl Kind {
    // The last four bits of a row's number say its kind.
    pub fn of(w: u64) -> Kind
        ensures { IsKind result (w % 16) }
    {
        match field(w, 0, 4) {
            0 => Kind::Element,
            1 => Kind::Counted,
            2 => Kind::Repeated,
            3 => Kind::Span,
            4..=7 => Kind::Mantissas,
            8 | 9 => Kind::Condition,
            10 => Kind::Assignment,
            11 => Kind::Refusal,
            12 => Kind::Derivation,
            13 => Kind::Comparison,
            14 => Kind::Loop,
            _ => Kind::Exponents,
        }
    }
}

// What is put into a cell: the present bit place; x + y a; y a - x; a + b; a - b.
#[derive(Clone, Copy, PartialEq, Eq)]
pub(crate) enum Form {
    Here,
    Let,
    Less,
    Plus,
    Minus,
}

impl Form {
    // The form of an assignment's value; none, where it fills cells.
    pub(crate) fn of(w: u64) -> Option<Form>
        ensures { MatchOption result (5 ≤ w / 16 % 8) (λ form. (w / 16 % 8 < 5) × (value_by form w ≡ value_in w)) }
    {
        match field(w, 4, 3) {
            0 => Some(Form::Here),
            1 => Some(Form::Let),
            2 => Some(Form::Less),
            3 => Some(Form::Plus),
            4 => Some(Form::Minus),
            _ => None,
        }
    }
}

// How a comparison compares.
#[derive(Clone, Copy, PartialEq, Eq)]
pub(crate) enum Relation {
    Differs,
    Over,
    Under,
    AtLeast,
}

impl Relation {
    pub(crate) fn of(w: u64) -> Relation
        ensures { relation_by result ≡ relation_in w }
    {
        match field(w, 5, 2) {
            0 => Relation::Differs,
            1 => Relation::Over,
            2 => Relation::Under,
            _ => Relation::AtLeast,
        }
    }

    // Whether it holds between two numbers.
    pub(crate) fn holds(self, a: u16, b: u16) -> bool
        ensures { result ≡ compares (relation_by self) a b }
    {
        match self {
            Relation::Differs => a != b,
            Relation::Over => a > b,
            Relation::Under => a < b,
            Relation::AtLeast => a >= b,
        }
    }
}
