// The flash store: its definitions and theorems stand in specs/; it has no code of its own.
#![tactic(auto)]
