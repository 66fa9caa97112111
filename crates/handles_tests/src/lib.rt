// That memory suffices for a reel of each format, store and transform, and that numbers which name none are told: by its contract `begin` may say of any reel
// that there is no memory for it.
#![tactic(auto)]

#[cfg(test)]
mod tests;
