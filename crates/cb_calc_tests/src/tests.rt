mod evaluation;
mod reading;
mod rows;
