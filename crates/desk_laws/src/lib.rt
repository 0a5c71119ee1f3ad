// What holds of queues and of the batch that they join to is theorems in specs/; there is no code here.
#![tactic(auto)]
