// The queues that a desk is lent.
#![tactic(auto)]
