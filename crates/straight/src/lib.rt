// Demand 3: a straight run of twelve kinds of words keeps what it marked Constant. There is no code here: specs/ has the
// manual's machine and the run, proofs/ the theorem about the step of the crate `step`.
#![tactic(auto)]
