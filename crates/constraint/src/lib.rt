// constraint.rs: the kinds of constraints, their numbers, and negation.
#![tactic(auto)]

pub mod numbers;

ghost use Rattle.std.specs.Prelude.{◌≡◌};
ghost use Rattle.constraint.specs.Kind.{kind_number, kind_of, is_valid, is_scheduling, is_assignment};
ghost use Rattle.constraint.specs.Cases.{operator_number, operator_of, negated_operator, case_of_target, target_operand, target_of, case_of_extra, extra_operand, extra_of};
ghost use Rattle.constraint.specs.Answered.{extra_read, negation_answered};
ghost use Rattle.constraint.specs.Negation.{negated_kind, negation_of, constraint, constraint_of};

use refusal::Refusal;

// The least number of an assignment constraint.
pub const CONSTRAINT_TYPE_DISCRIMINATION_LIMIT: u32 = 65536;

#[derive(Clone, Copy, Debug, PartialEq, Eq, Hash)]
pub enum ConstraintType {
    Invalid = 0,
    ChoiceIsInSlot = 1,
    ChoiceIsNotInSlot = 2,
    ChoicesAreInSameSlot = 3,
    ChoicesAreNotInSameSlot = 4,
    ChoicesHaveOffset = 5,
    SlotHasLimitedSize = 6,
    SlotContainsChoice = 7,
    SlotNotContainsChoice = 8,
    SlotsHaveSameChoices = 9,
    ChoicesHaveSameChoosers = 65536,
    ChooserIsInChoice = 65537,
    ChooserIsNotInChoice = 65538,
    ChoosersHaveSameChoices = 65539,
    ChoiceContainsChooser = 65540,
    ChoiceNotContainsChooser = 65541,
}

#[derive(Clone, Copy, Debug, PartialEq, Eq, Hash)]
pub enum SlotSizeLimitOp {
    Eq = 1,
    Gt = 2,
    Geq = 3,
    Neq = -1,
    Leq = -2,
    Lt = -3,
}

// The source's own: none is a case of it, beside four that are told apart.
#[derive(Clone, Copy, Debug, PartialEq, Eq, Hash)]
pub enum ConstraintTarget {
    None,
    Slot(usize),
    Choice(usize),
    Chooser(usize),
    Limit(u32),
}

// The source's own too.
#[derive(Clone, Copy, Debug, PartialEq, Eq, Hash)]
pub enum ConstraintExtra {
    None,
    Offset(i32),
    SlotSizeLimitOp(SlotSizeLimitOp),
}

#[derive(Clone, Copy, Debug, PartialEq, Eq, Hash)]
pub struct Constraint {
    pub kind: ConstraintType,
    pub left: usize,
    pub right: ConstraintTarget,
    pub extra: ConstraintExtra,
}

// The number of a kind, as in the Rust.
impl From<ConstraintType> for u32 {
    ghost from_gives = { λ k n. n ≡ kind_number k };

    fn from(kind: ConstraintType) -> u32 {
        kind as u32
    }
}

// The kind of a number. A number that is no kind of the Rust reads as Invalid.
impl From<u32> for ConstraintType {
    ghost from_gives = { λ n k. k ≡ kind_of n };

    #[tactic(auto, unfolding(crate::specs::Kind::kind_of))]
    fn from(number: u32) -> ConstraintType {
        match number {
            1 => ConstraintType::ChoiceIsInSlot,
            2 => ConstraintType::ChoiceIsNotInSlot,
            3 => ConstraintType::ChoicesAreInSameSlot,
            4 => ConstraintType::ChoicesAreNotInSameSlot,
            5 => ConstraintType::ChoicesHaveOffset,
            6 => ConstraintType::SlotHasLimitedSize,
            7 => ConstraintType::SlotContainsChoice,
            8 => ConstraintType::SlotNotContainsChoice,
            9 => ConstraintType::SlotsHaveSameChoices,
            65536 => ConstraintType::ChoicesHaveSameChoosers,
            65537 => ConstraintType::ChooserIsInChoice,
            65538 => ConstraintType::ChooserIsNotInChoice,
            65539 => ConstraintType::ChoosersHaveSameChoices,
            65540 => ConstraintType::ChoiceContainsChooser,
            65541 => ConstraintType::ChoiceNotContainsChooser,
            _ => ConstraintType::Invalid,
        }
    }
}

// The number of an operator, as in the Rust.
impl From<SlotSizeLimitOp> for i32 {
    ghost from_gives = { λ op n. n ≡ operator_number op };

    fn from(op: SlotSizeLimitOp) -> i32 {
        op as i32
    }
}

// A number that is no operator.
#[derive(Clone, Copy, Debug, PartialEq, Eq, Hash)]
pub struct UnknownOperator(pub i32);

impl TryFrom<i32> for SlotSizeLimitOp {
    type Error = UnknownOperator;

    ghost try_from_gives = { λ n op. extra_read op ≡ operator_of n };

    #[tactic(auto, unfolding(crate::specs::Cases::operator_of, counting::specs::Ints::eq_z))]
    fn try_from(number: i32) -> Result<SlotSizeLimitOp, UnknownOperator> {
        match number {
            1 => Ok(SlotSizeLimitOp::Eq),
            2 => Ok(SlotSizeLimitOp::Gt),
            3 => Ok(SlotSizeLimitOp::Geq),
            -1 => Ok(SlotSizeLimitOp::Neq),
            -2 => Ok(SlotSizeLimitOp::Leq),
            -3 => Ok(SlotSizeLimitOp::Lt),
            _ => Err(UnknownOperator(number)),
        }
    }
}

impl ConstraintType {
    // The kind of the negation; Invalid for kinds without one. A size limit keeps its kind.
    pub fn negation(self) -> ConstraintType
        ensures { result ≡ negated_kind self }
    {
        match self {
            ConstraintType::Invalid => ConstraintType::Invalid,
            ConstraintType::ChoiceIsInSlot => ConstraintType::ChoiceIsNotInSlot,
            ConstraintType::ChoiceIsNotInSlot => ConstraintType::ChoiceIsInSlot,
            ConstraintType::ChoicesAreInSameSlot => ConstraintType::ChoicesAreNotInSameSlot,
            ConstraintType::ChoicesAreNotInSameSlot => ConstraintType::ChoicesAreInSameSlot,
            ConstraintType::ChoicesHaveOffset => ConstraintType::Invalid,
            ConstraintType::SlotHasLimitedSize => ConstraintType::SlotHasLimitedSize,
            ConstraintType::SlotContainsChoice => ConstraintType::SlotNotContainsChoice,
            ConstraintType::SlotNotContainsChoice => ConstraintType::SlotContainsChoice,
            ConstraintType::SlotsHaveSameChoices => ConstraintType::Invalid,
            ConstraintType::ChoicesHaveSameChoosers => ConstraintType::Invalid,
            ConstraintType::ChooserIsInChoice => ConstraintType::ChooserIsNotInChoice,
            ConstraintType::ChooserIsNotInChoice => ConstraintType::ChooserIsInChoice,
            ConstraintType::ChoosersHaveSameChoices => ConstraintType::Invalid,
            ConstraintType::ChoiceContainsChooser => ConstraintType::ChoiceNotContainsChooser,
            ConstraintType::ChoiceNotContainsChooser => ConstraintType::ChoiceContainsChooser,
        }
    }

    pub fn is_valid(self) -> bool
        ensures { result ≡ is_valid self }
    {
        self != ConstraintType::Invalid
    }

    pub fn is_scheduling_constraint(self) -> bool
        ensures { result ≡ is_scheduling self }
    {
        u32::from(self) < CONSTRAINT_TYPE_DISCRIMINATION_LIMIT && self.is_valid()
    }

    pub fn is_assignment_constraint(self) -> bool
        ensures { result ≡ is_assignment self }
    {
        CONSTRAINT_TYPE_DISCRIMINATION_LIMIT <= u32::from(self) && self.is_valid()
    }
}

impl SlotSizeLimitOp {
    pub fn negation(self) -> SlotSizeLimitOp
        ensures { result ≡ negated_operator self }
    {
        match self {
            SlotSizeLimitOp::Eq => SlotSizeLimitOp::Neq,
            SlotSizeLimitOp::Gt => SlotSizeLimitOp::Leq,
            SlotSizeLimitOp::Geq => SlotSizeLimitOp::Lt,
            SlotSizeLimitOp::Neq => SlotSizeLimitOp::Eq,
            SlotSizeLimitOp::Leq => SlotSizeLimitOp::Gt,
            SlotSizeLimitOp::Lt => SlotSizeLimitOp::Geq,
        }
    }
}

impl ConstraintTarget {
    // The target that a case and an operand stand for: none 0, slot 1, choice 2, chooser 3, limit 4.
    pub fn of(case: u32, operand: u32) -> ConstraintTarget
        ensures { result ≡ target_of case operand }
    {
        match case {
            1 => ConstraintTarget::Slot(operand as usize),
            2 => ConstraintTarget::Choice(operand as usize),
            3 => ConstraintTarget::Chooser(operand as usize),
            4 => ConstraintTarget::Limit(operand),
            _ => ConstraintTarget::None,
        }
    }

    pub fn case(self) -> u32
        ensures { result ≡ case_of_target self }
    {
        match self {
            ConstraintTarget::None => 0,
            ConstraintTarget::Slot(_) => 1,
            ConstraintTarget::Choice(_) => 2,
            ConstraintTarget::Chooser(_) => 3,
            ConstraintTarget::Limit(_) => 4,
        }
    }

    pub fn operand(self) -> usize
        ensures { result ≡ target_operand self }
    {
        match self {
            ConstraintTarget::None => 0,
            ConstraintTarget::Slot(n)
            | ConstraintTarget::Choice(n)
            | ConstraintTarget::Chooser(n) => n,
            ConstraintTarget::Limit(n) => n as usize,
        }
    }
}

impl ConstraintExtra {
    // The extra that a case and an operand stand for: none 0, offset 1, operator 2.
    pub fn of(case: u32, operand: i32) -> ConstraintExtra
        ensures { result ≡ extra_of case operand }
    {
        match case {
            1 => ConstraintExtra::Offset(operand),
            2 => SlotSizeLimitOp::try_from(operand).map_or(
                ConstraintExtra::None,
                ConstraintExtra::SlotSizeLimitOp,
            ),
            _ => ConstraintExtra::None,
        }
    }

    pub fn case(self) -> u32
        ensures { result ≡ case_of_extra self }
    {
        match self {
            ConstraintExtra::None => 0,
            ConstraintExtra::Offset(_) => 1,
            ConstraintExtra::SlotSizeLimitOp(_) => 2,
        }
    }

    pub fn operand(self) -> i32
        ensures { result ≡ extra_operand self }
    {
        match self {
            ConstraintExtra::None => 0,
            ConstraintExtra::Offset(n) => n,
            ConstraintExtra::SlotSizeLimitOp(op) => i32::from(op),
        }
    }
}

impl Constraint {
    pub fn new(
        kind: ConstraintType,
        left: usize,
        right: ConstraintTarget,
        extra: ConstraintExtra,
    ) -> Constraint
        ensures { result ≡ constraint kind left right extra }
    {
        Constraint {
            kind,
            left,
            right,
            extra,
        }
    }

    // The constraint that six numbers stand for.
    pub fn of(
        kind: u32,
        left: u32,
        target_case: u32,
        target: u32,
        extra_case: u32,
        extra: i32,
    ) -> Constraint
        ensures { result ≡ constraint_of kind left target_case target extra_case extra }
    {
        Constraint::new(
            ConstraintType::from(kind),
            left as usize,
            ConstraintTarget::of(target_case, target),
            ConstraintExtra::of(extra_case, extra),
        )
    }

    // Every kind of the Rust has an answer; only a size limit without an operator is refused.
    #[tactic(auto, unfolding(crate::specs::Negation::negation_of))]
    pub fn negation(self) -> Result<Constraint, Refusal>
        ensures { negation_answered result ≡ negation_of self }
    {
        let mut extra = self.extra;
        if self.kind == ConstraintType::SlotHasLimitedSize {
            extra = match extra {
                ConstraintExtra::SlotSizeLimitOp(op) => {
                    ConstraintExtra::SlotSizeLimitOp(op.negation())
                }
                _ => return Err(Refusal::Operands),
            };
        }
        Ok(Constraint::new(self.kind.negation(), self.left, self.right, extra))
    }

    pub fn is_valid(self) -> bool
        ensures { result ≡ is_valid self.kind }
    {
        self.kind.is_valid()
    }

    pub fn is_scheduling_constraint(self) -> bool
        ensures { result ≡ is_scheduling self.kind }
    {
        self.kind.is_scheduling_constraint()
    }

    pub fn is_assignment_constraint(self) -> bool
        ensures { result ≡ is_assignment self.kind }
    {
        self.kind.is_assignment_constraint()
    }
}
