#![tactic(auto)]

// What the customer buys, over the definitions: the demands, the grammar, the refusals and the orders. No code stands on it.
