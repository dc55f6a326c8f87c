//! The hints of `debcheck`: `beginnings` of what first bytes tell, `inputs` of what indexes tell, and `outcomes` of what runs do. Whole programs tell
//! theirs in `trials/hints`.

mod beginnings;
mod inputs;
mod outcomes;
mod text;
