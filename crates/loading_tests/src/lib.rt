// Small files: written, loaded and written again, with the values worked out by hand or by Git.
#![tactic(auto)]

#[cfg(test)]
mod git_file;
#[cfg(test)]
mod histories;
#[cfg(test)]
mod tests;
