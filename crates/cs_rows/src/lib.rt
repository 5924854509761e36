// The calls of `cs_tool` and `cs_judge` over readers and writers that fail, and without a source: what the program can't show.
#![tactic(auto)]

#[cfg(test)]
mod fakes;
#[cfg(test)]
mod lines;
#[cfg(test)]
mod sources;
#[cfg(test)]
mod streams;
#[cfg(test)]
mod tables;
