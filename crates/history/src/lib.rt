// No code: the theorems on sequences of calls, from fresh, are in specs/.
#![tactic(auto)]
