// Examples of the catalogue: entries that fit and that do not, closures, free runs, and the listing made again.
#![tactic(auto)]

#[cfg(test)]
mod tests;
