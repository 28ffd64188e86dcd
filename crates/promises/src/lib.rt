// No code, and nothing stands on it: the statements that a reader asks for, over the definitions that the calls' contracts cite.
#![tactic(auto)]
