// Examples of what the calls mean, as the Rust answers them: definitions computed, in specs/. There is no code here.
#![tactic(auto)]
