// Tables that are tried where they lie in memory. What is told of each is worked out by hand.
#![tactic(auto)]

#[cfg(test)]
mod tests;
