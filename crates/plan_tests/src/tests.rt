mod plans;
mod states;
