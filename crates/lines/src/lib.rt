// Delay lines that shift along, step by step and over time; definitions and laws in specs/, and no code: the code keeps the bytes where they are (crate rings).
#![tactic(auto)]
