mod base;
mod explained;
mod reports;
