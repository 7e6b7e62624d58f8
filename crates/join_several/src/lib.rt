//! What a memory stands for is a machine of the theory, and what an event does to the memory is what it does to that machine. No code runs here.
#![tactic(auto)]
