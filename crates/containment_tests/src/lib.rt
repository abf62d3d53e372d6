// Questions of containment over small histories, with the answers worked out by hand.
#![tactic(auto)]

#[cfg(test)]
mod histories;
#[cfg(test)]
mod tests;
