// Laws about PDB lines that are read (change request §9), in specs/.
#![tactic(auto)]
