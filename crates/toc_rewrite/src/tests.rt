mod conditions;
mod files;
mod listings;
mod uses;
