// The paper put together: its definitions, and what is proved of them, are in specs/. There is no code here.
#![tactic(auto)]
