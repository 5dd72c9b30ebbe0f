mod asked_again;
mod dimensions;
mod merges;
mod names;
mod values;
