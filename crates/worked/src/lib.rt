// Worked cases of the definitions: what docs/RULES.md says in numbers, proved of the kits and of the machine.
#![tactic(auto)]

ghost use Rattle.worked.specs.EightCases.{EightCases};

// The eight cases that tell the rules from their common mistakes.
pub fn the_eight_cases()
    ensures { EightCases }
{}
