// What reading a plain text means: shape and place, canonical, the value, for every type and format. Definitions and laws alone.
#![tactic(auto)]
