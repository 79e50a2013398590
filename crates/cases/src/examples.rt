ghost use Rattle.cases.specs.Examples.{WorkedExamples};

// What the rules give in each worked example, by the definitions that the contracts of the code cite.
pub fn worked_examples_hold() -> u8
    ensures { WorkedExamples }
{
    0
}
