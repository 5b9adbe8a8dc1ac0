#![tactic(auto)]

ghost use Rattle.examples.specs.Worked.{WorkedExamples};

// The worked examples, at the kind of cost that sites are quoted in: Total, then Worst.
pub fn worked_examples()
    ensures { WorkedExamples }
{}
