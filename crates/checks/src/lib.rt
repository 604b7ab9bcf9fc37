// What reading a survey and summing it give on examples. The crate has tests alone: they are proved and run apart from what
// they test, since a crate with tests is proved twice.
#![tactic(auto)]

#[cfg(test)]
mod tests;
#[cfg(test)]
mod worked;
