// Tests of public calls of libraries here, most of which no program makes. What is wanted was worked out by hand.
#![tactic(auto)]

#[cfg(test)]
mod listing_puts;
#[cfg(test)]
mod runner_calls;
