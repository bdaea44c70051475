#![tactic(auto)]

// What is proved of the reading machine, its rooms and rows in lent memory: what the stages of reader and writer cite.
