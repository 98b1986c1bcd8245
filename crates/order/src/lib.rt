// Laws alone: orders, the edges drawn of them, and paths.

#![tactic(auto)]
