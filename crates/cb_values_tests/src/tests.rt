mod fact_list;
mod facts;
mod rows;
mod templates;
mod values;
