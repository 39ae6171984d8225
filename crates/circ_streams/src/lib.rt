// What the steps of CIRC make over whole streams of frames, and over lists of calls; definitions and laws in specs/, and no code.
#![tactic(auto)]
