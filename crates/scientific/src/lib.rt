// The exponent form: what its text is, what it denotes, and mission demand 3 of it. Definitions and laws alone, which writer and reader share.
#![tactic(auto)]
