// How many places an effect needs, by its number: what the C interface answers and what is guaranteed of it cite the same definition. No code.
#![tactic(auto)]
