// Worked examples of the rules, each with its result, for whoever wants to see that the rules are the ones meant. They are
// proved together, as one list: what the definitions give is what is stated.
#![tactic(auto)]

ghost use Rattle.std.specs.Prelude.{◌≡◌, map, length};
ghost use Rattle.examples.specs.Worked.{worked_examples, by_rule, stated};

// How many worked examples there are. Each gives by the rules what it states.
pub fn worked_examples() -> u32
    ensures count { result ≡ length worked_examples }
    ensures hold { map by_rule worked_examples ≡ map stated worked_examples }
{
    12
}
