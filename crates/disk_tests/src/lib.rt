// Tests of the disks: every cut of a short run, bad input, and one story told to its end.
#![tactic(auto)]

#[cfg(test)]
mod cuts;
#[cfg(test)]
mod inputs;
#[cfg(test)]
mod layered;
#[cfg(test)]
mod story;

// Whether a block holds `v` in each of its bytes.
pub fn is_full_of(block: &[u8; 256], v: u8) -> bool {
    block.iter().all(|x| *x == v)
}
