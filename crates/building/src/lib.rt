// Laws about what the additions of a text build (change request §9), in specs/.
#![tactic(auto)]
