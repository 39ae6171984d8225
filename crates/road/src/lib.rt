// The whole road of ECMA-130, from Sectors down to Channel bits and up again; definitions and laws in specs/, and no code.
#![tactic(auto)]
