// What is claimed of the whole: the demands in order, each a named statement with its proof. No code; specs/ alone tells what is proved.
#![tactic(auto)]
