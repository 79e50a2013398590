ghost use Rattle.std.specs.Prelude.{◌≡◌, ok_or};
ghost use Rattle.script.specs.Operations.{operation_of};

// What an assignment puts into its target: a constant, a copy of one operand, or a number made of two.
#[derive(Clone, Copy, PartialEq, Eq, Debug)]
pub enum Operation {
    Put,
    Copy,
    Sum,
    Difference,
    Smaller,
    Larger,
}

// A number that stands for no operation.
#[derive(Clone, Copy, PartialEq, Eq, Debug)]
pub struct UnknownOperation(pub u64);

impl TryFrom<u64> for Operation {
    type Error = UnknownOperation;

    ghost try_from_gives = { λ number r. r ≡ ok_or (operation_of number) (record { 0 = number }) };

    fn try_from(number: u64) -> Result<Operation, UnknownOperation> {
        match number {
            0 => Ok(Operation::Put),
            1 => Ok(Operation::Copy),
            2 => Ok(Operation::Sum),
            3 => Ok(Operation::Difference),
            4 => Ok(Operation::Smaller),
            5 => Ok(Operation::Larger),
            _ => Err(UnknownOperation(number)),
        }
    }
}
