// Laws of the definitions of `machine`, in specs/. There is no code here.
#![tactic(auto)]
