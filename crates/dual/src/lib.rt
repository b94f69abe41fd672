// The rectangular dual of a sheet: what plans are, and what a plan forces of the sheet that it keeps.
#![tactic(auto)]
