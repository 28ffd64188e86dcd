// No code, and nothing stands on it: what paper 02 §5 promises of the serial line, over the definitions that the contract of serial::byte cites.
#![tactic(auto)]
