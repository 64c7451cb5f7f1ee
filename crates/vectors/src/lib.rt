// No code: what each call answers on a small input, in specs/.
#![tactic(auto)]
