ghost use Rattle.std.specs.Prelude.{◌≡◌};
ghost use Rattle.machine.specs.Operations.{result_at};

use script::Operation;

// What the operation of a number gives; 0 for a number that stands for none.
pub fn result_of(operation: u64, constant: u64, left: u64, right: u64) -> u64
    ensures { result ≡ result_at operation constant left right }
{
    match Operation::try_from(operation) {
        Ok(Operation::Put) => constant,
        Ok(Operation::Copy) => left,
        Ok(Operation::Sum) => left.wrapping_add(right),
        Ok(Operation::Difference) => left.wrapping_sub(right),
        Ok(Operation::Smaller) => left.min(right),
        Ok(Operation::Larger) => left.max(right),
        Err(_) => 0,
    }
}
