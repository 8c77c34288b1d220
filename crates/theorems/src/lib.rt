// What is proved of the calls together: demand 3, the codes, 01's table and worked images, runs and orders. No code.
#![tactic(auto)]
